// What an accepted request has done.
use crate::sentence::Teller;

// One sentence for each kind, in their order.
pub fn accepted(teller: &mut Teller) {
    teller.tell_nth(
        &[
            "",
            "accepted: task %ta is defined",
            "accepted: role %ra is defined",
            "accepted: person %pa is defined",
            "accepted: nobody may own both task %ta and task %tb, nor hold both in open orders (SME)",
            "accepted: nobody may do both task %ta and task %tb in one order (DME)",
            "accepted: in one order, task %ta and task %tb are done in one role (RB)",
            "accepted: in one order, task %ta and task %tb are done by one person (SB)",
            "accepted: role %rb has task %ta",
            "accepted: role %ra is a junior of role %rb, which owns its tasks too",
            "accepted: person %pb has role %ra",
            "accepted: person %pb now acts in role %ra",
            "accepted: order %oa is open, with tasks %mc",
            "accepted: person %pc does task %ta in order %ob, and what is bound to it",
            "accepted: order %oa is closed, and its hands are forgotten",
            "accepted: role %rb has task %ta no more",
            "accepted: role %ra is a junior of role %rb no more",
            "accepted: person %pb has role %ra no more",
            "accepted: task %ta and task %tb exclude each other no more (SME)",
            "accepted: task %ta and task %tb exclude each other within an order no more (DME)",
            "accepted: task %ta and task %tb are bound to one role no more, unless other bindings join them (RB)",
            "accepted: task %ta and task %tb are bound to one person no more, unless other SB join them (SB)",
        ],
        teller.facts.kind,
    );
}
