// The kinds of messages.
ghost use Rattle.std.specs.Prelude.{◌≡◌};
ghost use Rattle.wire.specs.Message as spec;

// Each with its first byte. A message of another one, or of none, is of the kind Unknown and no None: the definition `kind` has it so.
#[derive(Clone, Copy, Debug, PartialEq, Eq)]
pub enum Kind {
    Unknown = 0,
    Program = 1,
    Block = 2,
    Update = 3,
    PathUpdate = 4,
}

// The kind that the first byte says.
#[tactic(auto, unfolding(crate::specs::Message::kind))]
pub fn kind_of(message: &[u8]) -> Kind
    ensures { result ≡ spec.kind message.now }
{
    match message.first() {
        Some(1) => Kind::Program,
        Some(2) => Kind::Block,
        Some(3) => Kind::Update,
        Some(4) => Kind::PathUpdate,
        _ => Kind::Unknown,
    }
}
