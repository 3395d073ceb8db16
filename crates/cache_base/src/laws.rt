//! Laws: the contract of each function is the law.

ghost use Rattle.std.specs.Prelude.{◌≡◌};
ghost use Rattle.cache_base.specs.declared.limits.TheConstants.{ALT_MAX, BLOCK_MAX, BODY_MAX, BUFFER_MAX, CACHED, CHANGED_MAX, CHUNK, ELEMENTS_MAX, KEY_MAX, LINE_MAX, PIECE_MAX, SCRIPT_MAX, SLOTS};

/// The numbers of all limits. Definitions cite the constants by name, so a constant with another number would change
/// what they say.
pub fn limits_are()
    ensures chunk { CHUNK ≡ 262144 }
    ensures buffer { BUFFER_MAX ≡ 262148 }
    ensures body { BODY_MAX ≡ 52428800 }
    ensures block { BLOCK_MAX ≡ 262144 }
    ensures key { KEY_MAX ≡ 16384 }
    ensures elements { ELEMENTS_MAX ≡ 65536 }
    ensures slots { SLOTS ≡ 64 }
    ensures piece { PIECE_MAX ≡ 1048576 }
    ensures alt { ALT_MAX ≡ 4194304 }
    ensures line { LINE_MAX ≡ 20000 }
    ensures script { SCRIPT_MAX ≡ 1073741824 }
    ensures changed { CHANGED_MAX ≡ 300 }
    ensures cached { CACHED ≡ 32 }
{}
