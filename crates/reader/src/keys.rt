// A key's body: its length and its snapshot.
ghost use Rattle.std.specs.Prelude.{◌≡◌};
ghost use Rattle.reader.specs.Bodies.{key_ok};

use wire::keys;

// Whether a field's body is a key's with the snapshot 0.
#[tactic(auto, using(crate::proofs::ShapeLaws::sized_least), unfolding(crate::specs::Bodies::key_ok, wire::specs::Keys::key_sized))]
pub fn key_ok(body: &[u8]) -> bool
    ensures { result ≡ key_ok body.now }
{
    keys::key_sized(body.len()) && keys::pos_at(body, 0).snapshot == 0
}
