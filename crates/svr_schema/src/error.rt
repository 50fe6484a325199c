use svr_edge::Memory;

/// Why a value is no schema.
#[derive(Clone, Copy, Debug, PartialEq, Eq)]
pub enum SchemaError {
    /// The first rule that fails, from 1 to 14, each over the whole value before the next.
    Rule(u8),
    Memory,
}

impl From<Memory> for SchemaError {
    ghost use Rattle.std.specs.Prelude.{◌≡◌};
    ghost use Rattle.svr_schema.specs.declared.error.SchemaError.TheVariants as error;

    ghost from_gives = { λ _ e. e ≡ error.Memory };

    fn from(_error: Memory) -> SchemaError {
        SchemaError::Memory
    }
}
