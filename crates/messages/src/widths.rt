// W-212: "fields at fixed widths, little-endian", "negatives in two's complement", as code. One writer and one reader
// of a number at a width, and one of each for the fields of a message, whatever its kind.
ghost use Rattle.std.specs.Prelude.{◌≡◌, true, ◌+◌, ◌≤◌, ◌<◌, length, take, drop};
ghost use Rattle.std.proofs.lemmas.List.Edits.{sets};
ghost use Rattle.std.specs.Int.Signed.{mag};
ghost use Rattle.paper_messages.specs.Bytes.{in_width, width_most, bytes_of, spelled, complement, signed_of};
ghost use Rattle.paper_messages.specs.Messages.{body_of, values_at};
ghost use Rattle.messages.specs.FieldRoom.{greatest_of, Room, Holding};

use paper_messages::{Field, Message};

// How many numbers a byte has.
const IN_BYTE: u64 = 256;

// The widest number, of 64 bits, has so many bytes.
const WIDTH_MOST: usize = 8;

// The greatest number of each width, from none to the widest: 256^width - 1. They stay as a table: no shift
// gives both the first and the last.
const GREATEST: [u64; WIDTH_MOST + 1] = [
    0,
    255,
    65_535,
    16_777_215,
    4_294_967_295,
    1_099_511_627_775,
    281_474_976_710_655,
    72_057_594_037_927_935,
    18_446_744_073_709_551_615,
];

fn greatest(width: usize) -> u64
    requires { width ≤ width_most }
    ensures { result ≡ greatest_of width }
{
    GREATEST[width]
}

// ---- a number at a width

// The number's bytes at `at`, the lowest first.
pub fn put_number(buf: &mut [u8], at: usize, width: usize, number: u64)
    requires { at + width ≤ length buf.old }
    ensures { buf.new ≡ sets buf.old at (bytes_of width number) }
{
    let mut rest = number;
    for i in 0..width {
        buf[at + i] = (rest % IN_BYTE) as u8;
        rest /= IN_BYTE;
    }
}

// The number that the bytes at `at` spell, taken from the highest byte down.
pub fn get_number(buf: &[u8], at: usize, width: usize) -> u64
    requires { (at + width ≤ length buf.now) × (width ≤ width_most) }
    ensures { (result ≡ spelled (take width (drop at buf.now))) × (result < in_width width) }
{
    let mut number: u64 = 0;
    for i in (0..width).rev() {
        number = number * IN_BYTE + u64::from(buf[at + i]);
    }
    number
}

// ---- two's complement

// The number that stands for `value`: 256^width is added to a negative one.
fn complement(width: usize, value: i64) -> u64
    requires { (width ≤ width_most) × (mag value < in_width width) }
    ensures { result ≡ complement width value }
{
    let size = exact::magnitude(value);
    if value < 0 {
        return greatest(width) - size;
    }
    size
}

// The value that `number` stands for.
fn signed_of(width: usize, number: u64) -> i64
    requires { (width ≤ width_most) × (number < in_width width) }
    ensures { result ≡ signed_of width number }
{
    let most = greatest(width);
    if number <= most / 2 {
        number as i64
    } else {
        -1 - ((most - number) as i64)
    }
}

// ---- the fields of a message

// Each value at its field's width, from `at` on.
pub fn put_fields(
    buf: &mut [u8],
    at: usize,
    places: [Field; Message::PLACES],
    values: [i64; Message::PLACES],
)
    requires { (Room at places buf.old) × (Holding places values) }
    ensures { buf.new ≡ sets buf.old at (body_of places values) }
{
    let mut to = at;
    for i in 0..Message::PLACES {
        let field = places[i];
        let width = field.width;
        put_number(buf, to, width, complement(width, values[i]));
        to += width;
    }
}

// The values that stand at these fields from `at` on.
pub fn get_fields(buf: &[u8], at: usize, places: [Field; Message::PLACES]) -> [i64; Message::PLACES]
    requires { Room at places buf.now }
    ensures { result ≡ values_at places (drop at buf.now) }
{
    let mut values: [i64; Message::PLACES] = [0; Message::PLACES];
    let mut from = at;
    for i in 0..Message::PLACES {
        let field = places[i];
        let width = field.width;
        values[i] = signed_of(width, get_number(buf, from, width));
        from += width;
    }
    values
}
