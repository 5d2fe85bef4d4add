//! The signs of a ruleset text.
ghost use Rattle.std.specs.Prelude.{◌≡◌, ◌≢◌, OnSome};
ghost use Rattle.pfr_words.specs.Words as spec;

/// A sign of pf.conf(5). `Between` and `Outside` are the two operators on a range of ports.
#[derive(Clone, Copy, Debug)]
pub enum Sign {
    /// `{`
    OpenBrace,
    /// `}`
    CloseBrace,
    /// `(`
    OpenParenthesis,
    /// `)`
    CloseParenthesis,
    /// `,`
    Comma,
    /// `=`
    Equal,
    /// `!=`
    NotEqual,
    /// `<`
    Less,
    /// `<=`
    LessOrEqual,
    /// `>`
    Greater,
    /// `>=`
    GreaterOrEqual,
    /// `><`
    Between,
    /// `<>`
    Outside,
    /// `!`
    Not,
    /// `->`
    Arrow,
    /// `-`
    Minus,
}

/// The sign that these two bytes write.
#[tactic(auto, unfolding(crate::specs::Words::double_sign))]
pub(crate) fn double_sign(first: u8, second: u8) -> Option<Sign>
    ensures value { result ≡ spec.double_sign first second }
    ensures two { OnSome result (second ≢ 0) }
{
    match (first, second) {
        (b'!', b'=') => Some(Sign::NotEqual),
        (b'<', b'=') => Some(Sign::LessOrEqual),
        (b'<', b'>') => Some(Sign::Outside),
        (b'>', b'=') => Some(Sign::GreaterOrEqual),
        (b'>', b'<') => Some(Sign::Between),
        (b'-', b'>') => Some(Sign::Arrow),
        _ => None,
    }
}

/// The sign that this byte writes alone.
#[tactic(auto, unfolding(crate::specs::Words::single_sign))]
pub(crate) fn single_sign(byte: u8) -> Option<Sign>
    ensures { result ≡ spec.single_sign byte }
{
    match byte {
        b'{' => Some(Sign::OpenBrace),
        b'}' => Some(Sign::CloseBrace),
        b'(' => Some(Sign::OpenParenthesis),
        b')' => Some(Sign::CloseParenthesis),
        b',' => Some(Sign::Comma),
        b'=' => Some(Sign::Equal),
        b'<' => Some(Sign::Less),
        b'>' => Some(Sign::Greater),
        b'!' => Some(Sign::Not),
        b'-' => Some(Sign::Minus),
        _ => None,
    }
}

/// Whether the two are one sign.
#[tactic(auto, unfolding(crate::specs::Words::same_sign))]
pub(crate) fn same_sign(a: Sign, b: Sign) -> bool
    ensures { result ≡ spec.same_sign a b }
{
    a == b
}
