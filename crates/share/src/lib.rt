// A share of a whole as two whole numbers brought to lowest terms.
#![tactic(auto)]

ghost use Rattle.std.specs.Prelude.{◌≡◌};
ghost use Rattle.share.specs.Shares.{common_divisor, lowest};

// So many of so many.
#[derive(Drop)]
pub struct Share {
    pub part: u64,
    pub whole: u64,
}

// The greatest common divisor, by recursion on the remainder, which falls at each call.
fn common_divisor(a: u64, b: u64) -> u64
    ensures { result ≡ common_divisor a b }
{
    if b == 0 {
        return a;
    }
    common_divisor(b, a % b)
}

// A part of a whole in lowest terms; 0 over 1 if there is no whole.
pub fn lowest(part: u64, whole: u64) -> Share
    ensures { result ≡ lowest part whole }
{
    if whole == 0 {
        return Share { part: 0, whole: 1 };
    }
    let divisor = common_divisor(part, whole);
    Share {
        part: part / divisor,
        whole: whole / divisor,
    }
}
