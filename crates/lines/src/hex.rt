ghost use Rattle.std.specs.Prelude.{◌≡◌, ◌+◌, ◌*◌, ◌<◌, ◌≤◌, length, take, IfSome, SomeIff};
ghost use Rattle.std.specs.Option.{option_map};
ghost use Rattle.octets.specs.Stores.{StoredText};
ghost use Rattle.line_replies.specs.Lines.{from_hex, hex_digit, hex_number, to_hex};

// A hex digit, in capitals.
fn hex_digit(number: u8) -> u8
    requires { number < 16 }
    ensures { result ≡ hex_digit number }
{
    if number < 10 {
        return b'0' + number;
    }
    b'A' + (number - 10)
}

// Stores octets in hex from a place of the room on, and answers the place after them.
pub(crate) fn put_hex(room: &mut [u8], at: usize, octets: &[u8]) -> usize
    requires { at + 2 * length octets.now ≤ length room.old }
    ensures stored_text { StoredText room.old room.new at (to_hex octets.now) result }
    ensures value { result ≡ at + 2 * length octets.now }
{
    let mut place = at;
    for &octet in octets {
        room[place] = hex_digit(octet / 16);
        room[place + 1] = hex_digit(octet % 16);
        place += 2;
    }
    place
}

// The number of a hex digit of either case.
fn hex_number(octet: u8) -> Option<u32>
    ensures { SomeIff result (hex_number octet < 16) (hex_number octet) }
{
    char::from(octet).to_digit(16)
}

// Stores the octets of whole pairs of hex digits at the front of a buffer, and answers how many they are.
pub(crate) fn read_hex(text: &[u8], buffer: &mut [u8]) -> Option<usize>
    requires { length text.now ≤ 2 * length buffer.old }
    ensures buffer_after { option_map (λ count. take count buffer.new) result ≡ from_hex text.now }
    ensures result_in_bounds { IfSome result (λ count. count ≤ length buffer.old) }
{
    let mut count = 0;
    let mut rest = text;
    while let [high, low, behind @ ..] = rest {
        buffer[count] = (hex_number(*high)? * 16 + hex_number(*low)?) as u8;
        count += 1;
        rest = behind;
    }
    if rest.is_empty() { Some(count) } else { None }
}
