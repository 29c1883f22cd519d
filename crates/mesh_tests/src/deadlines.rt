//! Deadlines: orders of calls worked by hand.

ghost use Rattle.std.specs.Prelude.{◌≡◌, length};

use bintree_addr::Slot;
use lazy_priority::Lazy;
use std::alloc::Global;

/// A call of the deadlines of three slots.
#[derive(Clone, Copy)]
enum Call {
    /// Of this slot, at this odometer, for so many units.
    Stamp(u32, u64, u64),
    /// Of this slot.
    Expire(u32),
    /// Of this slot.
    Forget(u32),
    /// At this odometer: this slot is due, or none.
    Due(u64, Option<u32>),
}

/// Whether the call can be made, and answers as it says.
fn goes(lazy: &mut Lazy, call: Call) -> bool
    requires { length lazy.old ≡ 3 }
    ensures { length lazy.new ≡ 3 }
{
    match call {
        Call::Stamp(slot, odometer, slack) => {
            if slot >= 3 || odometer > 1 << 62 || slack > 1 << 32 {
                return false;
            }
            lazy.stamp(Slot(slot), odometer, slack);
            true
        }
        Call::Expire(slot) => {
            lazy.expire(Slot(slot));
            true
        }
        Call::Forget(slot) => {
            lazy.forget(Slot(slot));
            true
        }
        Call::Due(odometer, slot) => lazy.due(odometer) == slot.map(Slot),
    }
}

/// How many of the calls go as they say, before the first that does not.
fn calls_that_go(alloc: Global, calls: &[Call]) -> Option<usize> {
    let mut lazy = Lazy::new(alloc, 3).ok()?;
    let mut count = 0usize;
    for call in calls {
        if !goes(&mut lazy, *call) {
            break;
        }
        count = count.saturating_add(1);
    }
    Some(count)
}

// A slot is due once and only past its deadline; one that expired is due at once, and a forgotten one never until it
// has another deadline.
#[test]
fn a_slot_is_due_once_past_its_deadline(rt: HostRuntime) {
    let once = [
        Call::Stamp(0, 10, 2),
        Call::Due(12, None),
        Call::Due(13, Some(0)),
        Call::Due(13, None),
    ];
    let expired = [
        Call::Stamp(0, 0, 0),
        Call::Stamp(1, 4, 3),
        Call::Stamp(1, 5, 3),
        Call::Due(0, None),
        Call::Expire(0),
        Call::Expire(2),
        Call::Due(0, Some(0)),
        Call::Due(8, None),
        Call::Forget(1),
        Call::Forget(2),
        Call::Due(9, None),
    ];
    let forgotten = [
        Call::Stamp(0, 0, 2),
        Call::Stamp(1, 1, 2),
        Call::Forget(0),
        Call::Expire(0),
        Call::Due(4, Some(1)),
        Call::Due(4, None),
        Call::Stamp(0, 4, 1),
        Call::Stamp(1, 3, 1),
        Call::Forget(1),
        Call::Stamp(1, 9, 1),
        Call::Due(5, None),
        Call::Due(6, Some(0)),
        Call::Due(10, None),
    ];
    let cases: [&[Call]; 3] = [&once, &expired, &forgotten];
    for calls in cases {
        assert_eq!(rt; calls_that_go(rt.alloc(), calls), Some(calls.len()));
    }
}
