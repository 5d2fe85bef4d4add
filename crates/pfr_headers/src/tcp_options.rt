//! The options of a TCP header.
ghost use Rattle.std.specs.Prelude.{◌≡◌, ◌≤◌, false, length};
ghost use Rattle.pfr_headers.specs.TcpOptions.{ends, is_scale, option_length, scale_of};

/// The greatest shift of a window (RFC 7323, section 2.3).
const MOST_SHIFT: u8 = 14;

/// The shift of the window that options offer: that of the first option of kind 3 and length 3.
#[tactic(auto, using(crate::proofs::OptionLemmas::none_at_end, crate::proofs::OptionLemmas::scale_here, crate::proofs::OptionLemmas::scale_next))]
pub fn window_scale(options: &[u8]) -> Option<u8>
    ensures { result ≡ scale_of options.now }
{
    let mut rest = options;
    while !ends(rest) {
        if is_scale(rest) {
            return Some(rest[2].min(MOST_SHIFT));
        }
        rest = &rest[option_length(rest)..];
    }
    None
}

/// Whether no option stands here.
#[inline]
fn ends(options: &[u8]) -> bool
    ensures { result ≡ ends options.now }
{
    options.is_empty()
        || options[0] == 0
        || (options[0] != 1
            && (options.len() < 2 || options[1] < 2 || options.len() < usize::from(options[1])))
}

/// Whether the first option is a window scale.
#[inline]
fn is_scale(options: &[u8]) -> bool
    requires { ends options.now ≡ false }
    ensures { result ≡ is_scale options.now }
{
    options[0] == 3 && options[1] == 3
}

/// The length of the first option in bytes.
#[inline]
fn option_length(options: &[u8]) -> usize
    requires { ends options.now ≡ false }
    ensures length { result ≡ option_length options.now }
    ensures some { 1 ≤ result }
    ensures within { result ≤ length options.now }
{
    if options[0] == 1 {
        return 1;
    }
    usize::from(options[1])
}
