// What a release sheet states of a firmware.
#![tactic(auto)]

ghost use Rattle.std.specs.Prelude.{◌≡◌};
ghost use Rattle.release_values.specs.Stated.{blank};

// The values that a person states. The size and the digest are not among them: the size is the firmware's, and the digest is made of the
// header and the firmware.
#[derive(Clone, Copy)]
pub struct Stated {
    pub version: u32,
    // Unix seconds.
    pub timestamp: u64,
    pub auth_type: u16,
    pub signature: [u8; 64],
    // A flag beside the bytes, not an Option: the maker takes `false` beside any 32 bytes (release_header/header_with), and C hands both.
    pub has_hint: bool,
    // Zeros where there is no hint.
    pub hint: [u8; 32],
}

impl Stated {
    // The values beside a refusal.
    pub fn blank() -> Stated
        ensures { result ≡ blank }
    {
        Stated {
            version: 0,
            timestamp: 0,
            auth_type: 0,
            signature: [0u8; 64],
            has_hint: false,
            hint: [0u8; 32],
        }
    }
}
