// The entry points: encoding or decoding, in unaligned PER or in DER.
#[derive(Clone, Copy)]
pub enum Entry {
    PerEncode,
    PerDecode,
    DerEncode,
    DerDecode,
}
