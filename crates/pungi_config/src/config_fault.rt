use pungi_base::Memory;
use thiserror::Error;

/// Why a configuration is refused.
#[derive(Debug, Drop, Error)]
pub enum ConfigFault {
    /// It is not a text of TOML.
    #[error("not TOML")]
    Text,
    /// The first key that is wrong, with the tables that it stands in.
    #[error("{0}")]
    Shape(String),
    #[error("no memory")]
    Memory,
}

impl From<Memory> for ConfigFault {
    ghost use Rattle.std.specs.Prelude.{◌≡◌};
    ghost use Rattle.pungi_config.specs.declared.config_fault.ConfigFault.TheVariants.{Memory};

    ghost from_gives = { λ e r. r ≡ Memory };

    fn from(_: Memory) -> Self {
        ConfigFault::Memory
    }
}
