//! Laws of the spelling of messages, each the contract of a function that does nothing.
ghost use Rattle.std.specs.Prelude.{◌≡◌, ◌≤◌, ◌++◌, List, ℕ, length};
ghost use Rattle.pfr_messages.specs.Messages.{Content, Fits, Spells, spelling};

/// No message's spelling begins another one's, so bytes are read as a stream of messages in one way.
pub fn readable()
    ensures one { (a b : Content) (x y : List ℕ) → Fits a → Fits b → spelling a ++ x ≡ spelling b ++ y → (a ≡ b) × (x ≡ y) }
{}

/// A message has one spelling, of at most 1480 bytes.
pub fn one_spelling()
    ensures same { (first second : List ℕ) (c : Content) → Spells first c → Spells second c → first ≡ second }
    ensures short { (text : List ℕ) (c : Content) → Spells text c → length text ≤ 1480 }
{}
