// Octets: comparing, finding and storing them. Nothing here knows of dates or of types.
#![tactic(auto)]

ghost use Rattle.std.specs.Prelude.{◌≡◌, ◌+◌, ◌-◌, ◌≤◌, drop, length};
ghost use Rattle.octets.specs.Octets.{eq_list};
ghost use Rattle.octets.specs.Pieces.{span_to};
ghost use Rattle.octets.specs.Stores.{place_after, room_after};

// Whether two slices hold the same octets.
pub fn same(a: &[u8], b: &[u8]) -> bool
    ensures { result ≡ eq_list a.now b.now }
{
    a.len() == b.len() && a.iter().zip(b).all(|(x, y)| x == y)
}

// What is left of octets behind those that are passed over, four at a time, where none of them is such a one.
fn skip_fours(s: &[u8], octet: u8) -> &[u8]
    ensures value { span_to octet s.now ≡ (length s.now - length result.now) + span_to octet result.now }
    ensures within { length result.now ≤ length s.now }
{
    let mut left = s;
    while let [a, b, c, d, behind @ ..] = left {
        if *a == octet || *b == octet || *c == octet || *d == octet {
            break;
        }
        left = behind;
    }
    left
}

// How many octets stand before the first such one.
fn span_to(s: &[u8], octet: u8) -> usize
    ensures value { result ≡ span_to octet s.now }
    ensures within { result ≤ length s.now }
{
    let left = skip_fours(s, octet);
    s.len() - left.len() + left.iter().position(|&x| x == octet).unwrap_or(left.len())
}

// The place of the first such octet from a place on, or the end.
pub fn find(s: &[u8], from: usize, octet: u8) -> usize
    ensures { result ≡ from + span_to octet (drop from s.now) }
{
    if s.len() < from {
        return from;
    }
    from + span_to(&s[from..], octet)
}

// Stores octets from a place of the room on, and answers the place after them. Where the room ends before, it stays as it
// was, and the answer is the place itself.
pub fn put_octets(room: &mut [u8], at: usize, octets: &[u8]) -> usize
    ensures value { result ≡ place_after room.old at octets.now }
    ensures room_after { room.new ≡ room_after room.old at octets.now }
{
    if room.len() < at || room.len() - at < octets.len() {
        return at;
    }
    let end = at + octets.len();
    room[at..end].copy_from_slice(octets);
    end
}
