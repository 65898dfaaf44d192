//! How this program was built. `scripts/build_unproved.sh` puts other words here.

/// What `--version` says of this build.
pub const BUILD: &str = "proved";

/// Whether the prover has checked the sources of this build, in JSON.
pub const IS_PROVED: &str = "true";
