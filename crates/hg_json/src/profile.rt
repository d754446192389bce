//! The versions of graph texts.

ghost use Rattle.std.specs.Prelude.{◌≡◌};
ghost use Rattle.hg_json.specs.code.Found.{Finds};
ghost use Rattle.hg_json.specs.Reading as spec;
ghost use Rattle.hg_json.specs.TypeText as text;

/// A version of graph texts. Each is read, and the second is written.
#[derive(Clone, Copy, Debug, PartialEq, Eq)]
pub enum Profile {
    /// `profile-1`, without functions as values.
    First,
    /// `profile-2`.
    Second,
}

/// The version of this name.
#[tactic(auto, unfolding(crate::specs::Reading::profile_named))]
pub fn profile_named(name: &str) -> Option<Profile>
    ensures { Finds (λ profile. profile) result (spec.profile_named name.now) }
{
    match name {
        "profile-1" => Some(Profile::First),
        "profile-2" => Some(Profile::Second),
        _ => None,
    }
}

/// Whether functions are values.
pub fn has_functions(profile: Profile) -> bool
    ensures { result ≡ text.has_functions profile }
{
    match profile {
        Profile::First => false,
        Profile::Second => true,
    }
}
