// The text of a large program.
ghost use Rattle.std.specs.Prelude.{◌≡◌, ◌≤◌, ◌<◌, ◌++◌, length, IfOk, OnOk};
ghost use Rattle.std.specs.Fmt.{decimal};
ghost use Rattle.um_call_answers.specs.BigText.{big_text as program_text, function_line, body_text, later_body};
ghost use Rattle.um_call_answers.specs.BigText.{call_text};

use std::alloc::{AllocError, Global};

/// The text of a program of `n` functions `g0`, `g1` and so on, each of two parameters and, but for the first two, made
/// of one or two functions before it; `n` lies in 1 to 2,000.
///
/// The powers of its units grow with `n`. The text has at most 1,048,576 bytes, and its time is linear in `n`. Want of
/// memory is the one error. The program is this project's own.
#[tactic(auto, using(crate::proofs::Lengths::text_fits))]
pub fn big_text(alloc: Global, n: u32) -> Result<Vec<u8>, AllocError>
    requires some { 1 ≤ n }
    requires few { n ≤ 2000 }
    ensures exact { IfOk result (λ text. text.items ≡ program_text n) }
    ensures fits { IfOk result (λ text. length text.items ≤ 1048576) }
{
    let mut text = b"[<Measure>] type m\n[<Measure>] type s\n".to_vec(alloc)?;
    for k in 0..n {
        push_function(&mut text, k)?;
    }
    Ok(text)
}

/// Adds the line of function k.
fn push_function(text: &mut Vec<u8>, k: u32) -> Result<(), AllocError>
    ensures { OnOk result (text.new.items ≡ text.old.items ++ function_line k) }
{
    text.extend_from_slice(b"let g")?;
    push_number(text, k)?;
    text.extend_from_slice(b" (x: num<_>) (y: num<_>) = ")?;
    push_body(text, k)?;
    text.push(b'\n')?;
    Ok(())
}

/// Adds the body of function k.
fn push_body(text: &mut Vec<u8>, k: u32) -> Result<(), AllocError>
    ensures { OnOk result (text.new.items ≡ text.old.items ++ body_text k) }
{
    match k {
        0 => text.extend_from_slice(b"x / y"),
        1 => text.extend_from_slice(b"x * x * y"),
        _ => push_later_body(text, k),
    }
}

/// Adds the body of function k, which is made of functions before it.
fn push_later_body(text: &mut Vec<u8>, k: u32) -> Result<(), AllocError>
    requires { 1 < k }
    ensures { OnOk result (text.new.items ≡ text.old.items ++ later_body k) }
{
    match k % 3 {
        0 => {
            push_call(text, k / 2, b" x y")?;
            text.extend_from_slice(b" * ")?;
            push_call(text, k / 3, b" y x")
        }
        1 => {
            push_call(text, k - 1, b" x y")?;
            text.extend_from_slice(b" + 0<_>")
        }
        _ => {
            push_call(text, k / 2, b" x y")?;
            text.extend_from_slice(b" / ")?;
            push_call(text, k - 1, b" x y")
        }
    }
}

/// Adds a call of function k on these variables.
fn push_call(text: &mut Vec<u8>, k: u32, variables: &[u8]) -> Result<(), AllocError>
    ensures { OnOk result (text.new.items ≡ text.old.items ++ call_text k variables.now) }
{
    text.push(b'g')?;
    push_number(text, k)?;
    text.extend_from_slice(variables)
}

fn push_number(text: &mut Vec<u8>, k: u32) -> Result<(), AllocError>
    ensures { OnOk result (text.new.items ≡ text.old.items ++ decimal k) }
{
    text.extend_from_slice(itoa::Buffer::new().format(k).as_bytes())
}
