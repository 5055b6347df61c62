//! Laws of encodings and of what a part holds, for callers that argue about bytes. The functions do nothing.

ghost use Rattle.std.specs.Prelude.{◌≡◌, ℕ, List};
ghost use Rattle.configurations.specs.Record.{IsRecord, Record, record_encoding};
ghost use Rattle.configurations.specs.Store.{HoldsNumbered, HoldsRecord};

use gate_journal::pair_readings_are_one;

/// No two records have one encoding.
pub fn encodings_differ()
    ensures { (some other : Record) → IsRecord some → IsRecord other → record_encoding some ≡ record_encoding other → some ≡ other }
{}

/// The bytes of a pair hold one record at most.
pub fn records_are_one()
    ensures { (some other : Record) (bytes : List ℕ) → HoldsRecord some bytes → HoldsRecord other bytes → some ≡ other }
{
    pair_readings_are_one();
}

/// And the store that put it there has one number.
pub fn numbers_are_one()
    ensures { (some other : Record) (number another : ℕ) (bytes : List ℕ) → HoldsNumbered some number bytes → HoldsNumbered other another bytes → number ≡ another }
{
    pair_readings_are_one();
}
