ghost use Rattle.std.specs.Prelude.{◌≡◌, ◌+◌};
ghost use Rattle.pungi_config.specs.Limits.{config_limit, row_limit, convention_limit, name_limit, param_limit};
ghost use Rattle.pungi_config.specs.Limits.{taken_limit, trial_limit};

/// The most bytes of a configuration.
pub const CONFIG_LIMIT: usize = 65536;

/// The most rows of a configuration.
pub(crate) const ROW_LIMIT: usize = 512;

/// The most conventions of a configuration.
pub(crate) const CONVENTION_LIMIT: usize = 512;

/// The most parameters of a row of a configuration.
pub(crate) const PARAM_LIMIT: usize = 8;

/// The largest number of a parameter that a convention takes over.
pub(crate) const TAKEN_LIMIT: usize = 32;

/// The largest trial.
pub(crate) const TRIAL_LIMIT: u32 = 2000;

/// The limits are those that the definitions state.
pub fn limits_are_those_stated()
    ensures config { CONFIG_LIMIT ≡ config_limit }
    ensures rows { ROW_LIMIT ≡ row_limit }
    ensures conventions { CONVENTION_LIMIT ≡ convention_limit }
    ensures names { ROW_LIMIT + CONVENTION_LIMIT ≡ name_limit }
    ensures params { PARAM_LIMIT ≡ param_limit }
    ensures taken { TAKEN_LIMIT ≡ taken_limit }
    ensures trial { TRIAL_LIMIT ≡ trial_limit }
{}
