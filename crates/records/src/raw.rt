// The fields of a catalogue solid's record, before any rule is tested.
ghost use Rattle.std.specs.Prelude.{◌≡◌};
ghost use Rattle.records.specs.Raw.{raw_record};
ghost use Rattle.records.specs.Reads.{Reads};

#[derive(Clone, Copy)]
pub(crate) struct RawSolid {
    pub(crate) kind: u16,
    pub(crate) r: u16,
    pub(crate) x: i16,
    pub(crate) y: i16,
    pub(crate) z: i16,
    pub(crate) h0: u16,
    pub(crate) h1: u16,
    pub(crate) h2: u16,
    pub(crate) d: i32,
}

pub(crate) fn read_raw(bytes: &[u8]) -> Option<RawSolid>
    ensures { Reads raw_record bytes.now result }
{
    let [
        kind_low,
        kind_high,
        r_low,
        r_high,
        x_low,
        x_high,
        y_low,
        y_high,
        z_low,
        z_high,
        h0_low,
        h0_high,
        h1_low,
        h1_high,
        h2_low,
        h2_high,
        d0,
        d1,
        d2,
        d3,
    ] = bytes
    else {
        return None;
    };
    Some(RawSolid {
        kind: u16::from_le_bytes([*kind_low, *kind_high]),
        r: u16::from_le_bytes([*r_low, *r_high]),
        x: i16::from_le_bytes([*x_low, *x_high]),
        y: i16::from_le_bytes([*y_low, *y_high]),
        z: i16::from_le_bytes([*z_low, *z_high]),
        h0: u16::from_le_bytes([*h0_low, *h0_high]),
        h1: u16::from_le_bytes([*h1_low, *h1_high]),
        h2: u16::from_le_bytes([*h2_low, *h2_high]),
        d: i32::from_le_bytes([*d0, *d1, *d2, *d3]),
    })
}

pub(crate) fn raw_bytes(raw: RawSolid) -> [u8; 20]
    ensures { result ≡ raw_record raw }
{
    let [kind_low, kind_high] = raw.kind.to_le_bytes();
    let [r_low, r_high] = raw.r.to_le_bytes();
    let [x_low, x_high] = raw.x.to_le_bytes();
    let [y_low, y_high] = raw.y.to_le_bytes();
    let [z_low, z_high] = raw.z.to_le_bytes();
    let [h0_low, h0_high] = raw.h0.to_le_bytes();
    let [h1_low, h1_high] = raw.h1.to_le_bytes();
    let [h2_low, h2_high] = raw.h2.to_le_bytes();
    let [d0, d1, d2, d3] = raw.d.to_le_bytes();
    [
        kind_low, kind_high, r_low, r_high, x_low, x_high, y_low, y_high, z_low, z_high, h0_low,
        h0_high, h1_low, h1_high, h2_low, h2_high, d0, d1, d2, d3,
    ]
}
