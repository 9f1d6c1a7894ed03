//! The front of a text that is checked, which tells of which kind it is.
ghost use Rattle.std.specs.Prelude.{◌≡◌, ◌≢◌, ◌≤◌, ◌<◌, ◌+◌, ◌++◌, ◌∷◌, [], ℕ, List, IfOk, OnOk, OnErr, codes, drop, length, nat_eq, take, true};
ghost use Rattle.std.specs.List.{starts_with};
ghost use Rattle.razor_limits.specs.Counts.{Rose};
ghost use Rattle.razor_base.specs.Headline.Outcomes.{Extends, outcome_by};
ghost use Rattle.razor_base.specs.Headline.Readings.{ended, given, reading};
ghost use Rattle.razor_base.specs.Texts.{StaysUnread};
ghost use Rattle.razor_core.specs.Front.{HasLittle, IsFrontTurn, is_begun};

use razor_base::{Desk, Failed, read_piece};

/// What a proof begins with.
const PROOF: &[u8] = b"proof ";

/// What was read of a text until its kind was known.
#[derive(Clone, Copy)]
pub(crate) struct Front {
    /// So many bytes, at the front of the buffer.
    pub(crate) read: usize,
    /// Whether its end was met, and they are all of it.
    pub(crate) whole: bool,
}

/// Whether the text whose front this is, is a proof.
pub(crate) fn is_proof(front: &[u8]) -> bool
    ensures { result ≡ starts_with nat_eq front.now (codes "proof ") }
{
    front.starts_with(PROOF)
}

/// Whether a proof begins so, and more of it has to be seen.
fn is_begun(front: &[u8]) -> bool
    ensures { result ≡ is_begun front.now }
{
    front.len() < PROOF.len() && PROOF.starts_with(front)
}

/// Reads the next bytes into the buffer, behind so many that were read before.
fn read_more<D: Desk>(
    desk: &mut D,
    name: &str,
    buffer: &mut [u8],
    read: usize,
) -> Result<usize, Failed>
    requires { read < length buffer.old }
    ensures added { D.reads desk.new ≡ D.reads desk.old ++ reading name.now (outcome_by result (drop read buffer.new)) ∷ [] }
    ensures bytes { IfOk result (λ n. (given (D.reads desk.new) name.now ≡ given (D.reads desk.old) name.now ++ take n (drop read buffer.new))
        × (n ≡ 0 → ended (D.reads desk.new) name.now ≡ true) × (read + n ≤ length buffer.new)) }
    ensures failed { OnErr result (Rose (D.faults desk.old name.now) (D.faults desk.new name.now)
        × (given (D.reads desk.new) name.now ≡ given (D.reads desk.old) name.now)) }
    ensures calm { OnOk result ((other : List ℕ) → D.faults desk.new other ≡ D.faults desk.old other) }
    ensures kept { take read buffer.new ≡ take read buffer.old }
    ensures others { (other : List ℕ) → other ≢ name.now → StaysUnread (D.reads desk.old) (D.reads desk.new) other }
    ensures counts { (other : List ℕ) → D.faults desk.old other ≤ D.faults desk.new other }
{
    read_piece(desk, name, &mut buffer[read..])
}

/// Reads the front of a text, piece by piece, until it is known whether it is a proof.
pub(crate) fn read_front<D: Desk>(
    desk: &mut D,
    name: &str,
    buffer: &mut [u8],
) -> Result<Front, Failed>
    requires { 6 ≤ length buffer.old }
    ensures within { IfOk result (λ front. front.read ≤ length buffer.new) }
    ensures same { length buffer.new ≡ length buffer.old }
    ensures front { IfOk result (λ front. given (D.reads desk.new) name.now ≡ given (D.reads desk.old) name.now ++ take front.read buffer.new) }
    ensures kind { IfOk result (λ front. is_begun (take front.read buffer.new) ≡ front.whole) }
    ensures ended { IfOk result (λ front. front.whole ≡ true → ended (D.reads desk.new) name.now ≡ true) }
    ensures failed { OnErr result (Rose (D.faults desk.old name.now) (D.faults desk.new name.now)
        × HasLittle (given (D.reads desk.old) name.now) (given (D.reads desk.new) name.now)) }
    ensures turn { Extends (D.reads desk.old) (D.reads desk.new) (IsFrontTurn name.now result) }
    ensures calm { OnOk result ((other : List ℕ) → D.faults desk.new other ≡ D.faults desk.old other) }
    ensures others { (other : List ℕ) → other ≢ name.now → StaysUnread (D.reads desk.old) (D.reads desk.new) other }
    ensures counts { (other : List ℕ) → D.faults desk.old other ≤ D.faults desk.new other }
{
    let mut read = 0;
    'pieces: while is_begun(&buffer[..read]) {
        let count = read_more(desk, name, buffer, read)?;
        if count == 0 {
            return Ok(Front { read, whole: true });
        }
        read += count;
    }
    Ok(Front { read, whole: false })
}
