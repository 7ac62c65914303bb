// What the four bytes of an event tell the loop over events (request #114): whether its fields fit, and the number of bytes that are no event.
ghost use Rattle.std.specs.Prelude.{◌≡◌, ◌&&◌};
ghost use Rattle.arbiter.specs.Events.{unused, zero_or_one, first_fits, second_fits, third_fits, raw_number};

use arbiter::Raw;
use bits::pick;

// A master and a byte, as COMMAND and WRITE have them.
pub(crate) fn fits_byte(r: Raw) -> bool
    ensures { result ≡ zero_or_one r.x && unused r.z }
{
    (r.x < 2) & (r.z == 0)
}

// A master alone, as READ and STOP have it, or a level, as PULSE has it.
pub(crate) fn fits_one(r: Raw) -> bool
    ensures { result ≡ zero_or_one r.x && unused r.y && unused r.z }
{
    (r.x < 2) & (r.y == 0) & (r.z == 0)
}

// Three levels, as LINES has them.
pub(crate) fn fits_levels(r: Raw) -> bool
    ensures { result ≡ zero_or_one r.x && zero_or_one r.y && zero_or_one r.z }
{
    (r.x < 2) & (r.y < 2) & (r.z < 2)
}

// No field, as RESET has none.
pub(crate) fn fits_none(r: Raw) -> bool
    ensures { result ≡ unused r.x && unused r.y && unused r.z }
{
    (r.x == 0) & (r.y == 0) & (r.z == 0)
}

// The first field: of PAIR any byte, of TICK and RESET unused, of all others a master or a level.
fn first_fits(r: Raw) -> bool
    ensures { result ≡ first_fits r }
{
    (r.kind == 4) | pick((r.kind == 6) | (r.kind == 8), r.x == 0, r.x < 2)
}

// The second: of COMMAND, WRITE, PAIR and GENERAL CALL any byte, of LINES a level, of all others unused.
fn second_fits(r: Raw) -> bool
    ensures { result ≡ second_fits r }
{
    (r.kind == 0)
        | (r.kind == 1)
        | (r.kind == 4)
        | (r.kind == 9)
        | pick(r.kind == 5, r.y < 2, r.y == 0)
}

// The third: of LINES a level, of all others unused.
fn third_fits(r: Raw) -> bool
    ensures { result ≡ third_fits r }
{
    pick(r.kind == 5, r.z < 2, r.z == 0)
}

// The answer's first byte for four bytes that are no event, or 0: it goes into the answer as it is.
pub(crate) fn unread_number(r: Raw) -> u8
    ensures { result ≡ raw_number r }
{
    if r.kind < 10 {
        if first_fits(r) & second_fits(r) & third_fits(r) {
            0
        } else {
            3
        }
    } else {
        2
    }
}
