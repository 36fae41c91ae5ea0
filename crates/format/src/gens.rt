// Generation records.
ghost use Rattle.std.specs.Prelude.{◌≡◌, ◌<◌, length};
ghost use Rattle.wire.specs.Positions.{gens_byte};
ghost use Rattle.format.specs.Gens.{with_gen, no_gens};

use wire::keys::Value;
use wire::kinds::Bucket;
use wire::positions;

// The record with a bucket's generation. Refusal 19 shows that it has the byte.
#[tactic(auto, unfolding(crate::specs::Gens::with_gen))]
pub fn with_gen(v: &mut Value, b: Bucket, generation: u8)
    requires { gens_byte b < length v.old }
    ensures { v.new ≡ with_gen b generation v.old }
{
    v.put(positions::gens_byte(b), &[generation]);
}

// A record that is started.
#[tactic(auto, unfolding(crate::specs::Gens::no_gens))]
pub fn no_gens() -> Value
    ensures { result ≡ no_gens }
{
    Value::new(&[0; 256])
}
