// The table of records that a caller lends: "Records .. stand in the table by ascending path; places past the last record are
// unchanged." The functions here are thin: they store, and decide nothing.
#![tactic(auto)]

ghost use Rattle.std.specs.Prelude.{◌≡◌, ◌≤◌, length, set, take};
ghost use Rattle.meaning.specs.Mount.{filled};

use meaning::Record;

/// Stores one record; where there is no such place, nothing.
pub fn put(table: &mut [Record], i: usize, r: Record)
    ensures { table.new ≡ set table.old i r }
{
    if table.len() <= i {
        return;
    }
    table[i] = r;
}

/// Stores the first n of the records.
pub fn fill(table: &mut [Record], records: &[Record; 256], n: usize)
    requires { (n ≤ length table.old) × (n ≤ 256) }
    ensures { table.new ≡ filled (take n records.now) table.old }
{
    for i in 0..n {
        put(table, i, records[i]);
    }
}
