// A type's limits as C passes them, in the order of the header's struct. `years` is 0 where there is no lowest and no
// highest year, `no24` is 0 where hour 24 is allowed, and `counts` is 0 where there is no fewest and no most of
// recurrences. Any other number says that there is such a limit.
#[repr(C)]
#[derive(Clone, Copy)]
pub struct GivenLimits {
    pub years: u32,
    pub lowest: i32,
    pub highest: i32,
    pub no24: u32,
    pub counts: u32,
    pub fewest: u32,
    pub most: u32,
}
