//! Zeros that are written to sectors.
ghost use Rattle.std.specs.Prelude.{◌≡◌, ◌*◌, ◌≤◌, length, replicate};
ghost use Rattle.tp_model.specs.Sectors.{sectors_of, zero_sector};

/// As many zeros as one request may write, by sectors: no proof counts a million bytes.
static ZEROS: [[u8; 512]; 2048] = [[0; 512]; 2048];

/// The bytes of so many sectors that are zero, 2048 at most. It takes no memory.
pub fn zeros(count: u64) -> &'static [u8]
    requires { count ≤ 2048 }
    ensures length { length result.now ≡ 512 * count }
    ensures sectors { sectors_of result.now ≡ replicate count zero_sector }
{
    ZEROS[..count as usize].as_flattened()
}
