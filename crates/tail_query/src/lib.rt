//! How a read is answered: at once where its blocks are clean, or after the tail was asked.
//!
//! Its contract for the layer above: a range is answered from the member's own blocks exactly where no applied write
//! above the known commit touches a block of it. Whom to ask, and what a read gives, is left to that layer.
#![tactic(auto)]

ghost use Rattle.std.specs.Prelude.{◌≡◌, ◌+◌, ◌*◌, ◌≤◌, ◌↔◌, max};
ghost use Rattle.version_table.specs.Held.{applied_of, IsClean};

mod ways;

use version_table::Table;
pub use ways::Plan;

/// How the `len` bytes from `offset` on are answered by a member with the known commit `k`. The range lies within the
/// largest volume, and `k` between the table's forgotten front and its `applied()`.
pub fn plan(table: &Table, offset: u64, len: u32, k: u64) -> Plan
    requires inside { offset + len ≤ 4096 * 65536 }
    requires kept { table.now.forgotten ≤ k }
    requires applied { k ≤ applied_of table.now }
    ensures local { (result ≡ Plan.Local) ↔ IsClean table.now offset len k }
{
    if table.is_clean(offset, len, k) {
        Plan::Local
    } else {
        Plan::Ask
    }
}

/// The front at which a range is answered, by a member with the known commit `k`, after the tail answered `asked`.
pub fn front_of(asked: u64, k: u64) -> u64
    ensures { result ≡ max asked k }
{
    asked.max(k)
}
