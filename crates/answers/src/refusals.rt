ghost use Rattle.std.specs.Prelude.{◌≡◌};
ghost use Rattle.answers.specs.Refusals.{number_of};

// Why there is no result: the causes of the seven numbers, in their order.
#[derive(Clone, Copy, PartialEq, Eq)]
pub enum Refusal {
    Settings = 1,
    Rows = 2,
    Form = 3,
    Existence = 4,
    Membership = 5,
    Encoding = 6,
    Room = 7,
}

// The number of a refusal.
impl From<Refusal> for u32 {
    ghost from_gives = { λ why number. number ≡ number_of why };

    fn from(why: Refusal) -> u32 {
        why as u32
    }
}
