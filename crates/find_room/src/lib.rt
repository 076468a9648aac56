// Whether the hits of a finding have room, before a row is written.
#![tactic(auto)]

ghost use Rattle.std.specs.Prelude.{◌≡◌, ◌≤◌, length};
ghost use Rattle.find_room.specs.Room.{too_many, room_of};

use find_match::Question;
use read_model::State;
use rules::Refusal;

// Whether there are more hits than room, where the judging pass ended well at b. Where each record has room as a hit, none are counted.
fn too_many(s: &[u8], question: &Question<'_>, b: State, hmax: usize) -> bool
    requires { b.refusal ≡ 0 → length s.now ≤ 16777216 }
    ensures { result ≡ too_many s.now question.now b hmax }
{
    b.refusal == 0 && b.env.phase == 4 && hmax < b.records && hmax < find_count::count(s, question)
}

// Refusal 13, where there are more hits than room.
pub fn room(s: &[u8], question: &Question<'_>, b: State, hmax: usize) -> Result<(), Refusal>
    requires { b.refusal ≡ 0 → length s.now ≤ 16777216 }
    ensures { result ≡ room_of s.now question.now b hmax }
{
    if too_many(s, question, b, hmax) {
        return Err(Refusal {
            number: 13,
            offset: 0,
        });
    }
    Ok(())
}
