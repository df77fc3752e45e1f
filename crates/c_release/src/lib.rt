// The rows by which a C caller gets what a release sheet states.
#![tactic(auto)]

ghost use Rattle.std.specs.Prelude.{◌≡◌, ◌++◌, length};
ghost use Rattle.c_release.specs.Rows.{sheet_numbers, sheet_bytes};

use output::put;
use release_values::Stated;

// The signature, and the hint behind it.
fn put_pair(out: &mut [u8], signature: [u8; 64], hint: [u8; 32])
    requires { length out.old ≡ 96 }
    ensures { out.new ≡ signature ++ hint }
{
    let hint_at = put(out, 0, &signature);
    put(out, hint_at, &hint);
}

// What a sheet states, behind the line of a refusal.
pub fn put_stated(numbers: &mut [u64], bytes: &mut [u8], line: u64, v: Stated)
    requires { (length numbers.old ≡ 5) × (length bytes.old ≡ 96) }
    ensures { (numbers.new ≡ sheet_numbers line v) × (bytes.new ≡ sheet_bytes v) }
{
    numbers.copy_from_slice(&[
        line,
        v.version as u64,
        v.timestamp,
        v.auth_type as u64,
        v.has_hint as u64,
    ]);
    put_pair(bytes, v.signature, v.hint);
}
