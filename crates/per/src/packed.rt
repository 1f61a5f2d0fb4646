// Encodings at the front of a buffer, of any size.
ghost use Rattle.std.specs.Prelude.{◌≡◌, ◌≤◌, cond, Ok, Err};
ghost use Rattle.octets.specs.Octets.{eq_list};
ghost use Rattle.answers.specs.Counts.{octets_for};
ghost use Rattle.answers.specs.Outcomes.{done, outcome_of, room_of};
ghost use Rattle.answers.specs.declared.refusals.Refusal.{Refusal};
ghost use Rattle.per.specs.Packed.{front_of};

use answers::{Bits, Outcome, Refusal, deliver};
use octets::same;
use packing::Packed;

// The octets that carry an encoding's bits.
fn front<const N: usize>(packed: &Packed<N>) -> &[u8]
    requires { (octets_for packed.now.bits).count ≤ N }
    ensures { result.now ≡ front_of packed.now }
{
    &packed.octets[..packed.bits.octets().count]
}

// Puts the octets of an encoding at the front of the room.
pub(crate) fn deliver_packed<const N: usize>(packed: &Packed<N>, room: &mut [u8]) -> Outcome
    requires { (octets_for packed.now.bits).count ≤ N }
    ensures value { result ≡ outcome_of (done (front_of packed.now) packed.now.bits) room.old }
    ensures room_after { room.new ≡ room_of (done (front_of packed.now) packed.now.bits) room.old }
{
    deliver(front(packed), packed.bits, room)
}

// The bits of an encoding, where octets are its own.
pub(crate) fn own_bits<const N: usize>(octets: &[u8], packed: &Packed<N>) -> Result<Bits, Refusal>
    requires { (octets_for packed.now.bits).count ≤ N }
    ensures { result ≡ cond (eq_list octets.now (front_of packed.now)) (Ok packed.now.bits) (Err Refusal.Encoding) }
{
    if !same(octets, front(packed)) {
        return Err(Refusal::Encoding);
    }
    Ok(packed.bits)
}
