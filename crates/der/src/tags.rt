// Each tag stands here once, to be written and to be compared with.
ghost use Rattle.std.specs.Prelude.{◌≡◌};
ghost use Rattle.der_elements.specs.Elements.{tag_of};

use types::Name;

// The tag of any settings list is 0E; those of the useful time types (X.680 34 bis.4) are 1F 1F for DATE, 1F 20 for
// TIME-OF-DAY, 1F 21 for DATE-TIME and 1F 22 for DURATION.
pub(crate) fn tag_of(name: Name) -> &'static [u8]
    ensures { result.now ≡ tag_of name }
{
    match name {
        Name::Listed => &[0x0E],
        Name::Date => &[0x1F, 0x1F],
        Name::TimeOfDay => &[0x1F, 0x20],
        Name::DateTime => &[0x1F, 0x21],
        Name::Duration => &[0x1F, 0x22],
    }
}
