// Texts of one, three and five parcels, the CPU prefix before the longer ones if there is one.
ghost use Rattle.std.specs.Prelude.{◌≡◌, ◌<◌};
ghost use Rattle.isa.specs.Encode.{text1, text3, text5, with_prefix};

use isa::{CPU_PREFIX, Text};

pub(crate) fn one_parcel(p: u16) -> Text
    ensures { result ≡ text1 p }
{
    Text {
        count: 1,
        p0: p,
        p1: 0,
        p2: 0,
        p3: 0,
        p4: 0,
        p5: 0,
    }
}

pub(crate) fn three_parcels(p: u16, a: u16, b: u16) -> Text
    ensures { result ≡ text3 p a b }
{
    Text {
        count: 3,
        p0: p,
        p1: a,
        p2: b,
        p3: 0,
        p4: 0,
        p5: 0,
    }
}

pub(crate) fn five_parcels(p: u16, a: u16, b: u16, c: u16, d: u16) -> Text
    ensures { result ≡ text5 p a b c d }
{
    Text {
        count: 5,
        p0: p,
        p1: a,
        p2: b,
        p3: c,
        p4: d,
        p5: 0,
    }
}

// A text of at most five parcels after its prefix, if there is one.
pub(crate) fn with_prefix(prefix: bool, t: Text) -> Text
    requires { t.count < 6 }
    ensures { result ≡ with_prefix prefix t }
{
    if prefix {
        Text {
            count: t.count + 1,
            p0: CPU_PREFIX,
            p1: t.p0,
            p2: t.p1,
            p3: t.p2,
            p4: t.p3,
            p5: t.p4,
        }
    } else {
        t
    }
}
