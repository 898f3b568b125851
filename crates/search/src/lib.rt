// The searches of document 01's numbers: the lowest that passes, and x the lowest that has a partner, then y its lowest partner.
// One pair search over any table serves 27, 28, 33 and 34; one search for the rows that meet a set, 25, 26, 31 to 33 and the audit; one
// test that a set holds no pair, rules 7 to 9.
#![tactic(auto)]

ghost use Rattle.std.specs.Prelude.{◌≡◌, ◌<◌};
ghost use Rattle.sets.specs.Mask.{meet, alone_if, picked};
ghost use Rattle.sets.specs.Members.{IsLowest};
ghost use Rattle.rules.specs.Requests.{is_open};
ghost use Rattle.rules.specs.Numbers.{between, outside};
ghost use Rattle.rules.specs.Audit.{pair_free};
ghost use Rattle.book.specs.Tables.{number};
ghost use Rattle.book.specs.Slice.{tables};
ghost use Rattle.search.specs.Pairs.{found_pair};

use book::Table;

// x of xs the lowest that has a partner, then y its lowest partner: y of ys in x's row of the table. The form is document 01's; since the
// inner loop visits partners alone, it takes one turn where there is one.
pub fn first_pair(book: &book::Words, table: Table, xs: u64, ys: u64) -> Option<(u64, u64)>
    ensures { result ≡ found_pair (between ((tables book.now).row (number table)) xs ys) }
{
    let mut found = None;
    'search: for x in sets::each(xs) {
        for y in sets::each(book::row(book, table, x) & ys) {
            found = Some((x, y));
            break 'search;
        }
    }
    found
}

// Number r alone, where row r of the table meets the set; else nothing.
pub fn meeting_row(book: &book::Words, table: Table, set: u64, r: u64) -> u64
    requires { r < 64 }
    ensures { result ≡ alone_if (λ i. meet ((tables book.now).row (number table) i) set) r }
{
    if sets::meets(book::row(book, table, r), set) {
        sets::alone(r)
    } else {
        0
    }
}

// The numbers among `those` whose rows of the table meet the set.
pub fn meeting(book: &book::Words, table: Table, those: u64, set: u64) -> u64
    ensures { result ≡ picked (λ i. meet ((tables book.now).row (number table) i) set) those }
{
    let mut out = 0;
    for r in sets::each(those) {
        out |= meeting_row(book, table, set, r);
    }
    out
}

// Whether the set holds no pair of the table: no member's row meets the set.
pub fn is_pair_free(book: &book::Words, table: Table, set: u64) -> bool
    ensures { result ≡ pair_free ((tables book.now).row (number table)) set }
{
    for x in sets::each(set) {
        if sets::meets(book::row(book, table, x), set) {
            return false;
        }
    }
    true
}

// The lowest of xs that is not in ys.
pub fn lowest_outside(xs: u64, ys: u64) -> Option<u64>
    ensures { IsLowest (outside xs ys) result }
{
    sets::first(xs & !ys)
}

// The lowest open order.
pub fn lowest_open(book: &book::Words) -> Option<u64>
    ensures { IsLowest (is_open (tables book.now)) result }
{
    for p in 0..64 {
        if book::row(book, Table::Orders, p) != 0 {
            return Some(p);
        }
    }
    None
}
