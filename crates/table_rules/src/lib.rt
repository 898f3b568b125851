// The audit's rules 1 to 8, over the tables, each of one number: a task, a role or a subject.
#![tactic(auto)]

ghost use Rattle.std.specs.Prelude.{◌≡◌, Bool, not, ℕ, ◌<◌};
ghost use Rattle.sets.specs.Mask.{meet};
ghost use Rattle.rules.specs.Book.{Book};
ghost use Rattle.rules.specs.Trade.{reach};
ghost use Rattle.rules.specs.Audit.{of_four, not_own, symmetric, owner_free};
ghost use Rattle.book.specs.declared.Table.{Table};
ghost use Rattle.book.specs.Tables.{number};
ghost use Rattle.book.specs.Slice.{tables};
ghost use Rattle.owners.specs.Owners.{start_of};
ghost use Rattle.table_rules.specs.Rows.{Asks};

use book::Table;

// Rule 2 in one table: u is in the row of each task of its own row.
pub fn is_two_sided(book: &book::Words, table: Table, u: u64) -> bool
    requires { u < 64 }
    ensures { result ≡ symmetric ((tables book.now).row (number table)) u }
{
    for v in sets::each(book::row(book, table, u)) {
        if !book::is_in_row(book, table, v, u) {
            return false;
        }
    }
    true
}

// Rules 1 and 2: whether what is asked of a task in a table holds in each of the four pair tables.
pub fn is_kept_in_four<F: Fn(Table) -> bool>(is_kept_in: F) -> bool
    requires { (table : Table) → F.pre is_kept_in table }
    ensures { (d : Book) (rule : (ℕ → ℕ) → ℕ → Bool) (t : ℕ) → Asks (F.post is_kept_in) d rule t → result ≡ of_four rule d t }
{
    is_kept_in(Table::Sme)
        & (is_kept_in(Table::Dme) & (is_kept_in(Table::Rb) & is_kept_in(Table::Sb)))
}

// Rules 3, 4 and 5: t's row has none of the others.
pub fn is_apart(book: &book::Words, table: Table, others: u64, t: u64) -> bool
    requires { t < 64 }
    ensures { result ≡ not (meet ((tables book.now).row (number table) t) others) }
{
    !sets::meets(book::row(book, table, t), others)
}

// Rule 6: role r doesn't reach itself.
pub fn is_acyclic(book: &book::Words, r: u64) -> bool
    requires { r < 64 }
    ensures { result ≡ not_own (reach (tables book.now)) r }
{
    !sets::has(trade::reach(book, r), r)
}

// Rules 7 and 8: an owner owns no task that is SME to one of its own.
pub fn is_owner_free(book: &book::Words, owner: owners::Owner, o: u64) -> bool
    requires { o < 64 }
    ensures { result ≡ owner_free (tables book.now) (start_of (tables book.now) owner) o }
{
    let owned = trade::owned_tasks(book, owners::start_of(book, owner, o));
    search::is_pair_free(book, Table::Sme, owned)
}
