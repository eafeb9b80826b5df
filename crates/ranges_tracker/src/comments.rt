//! The comments after a component.

ghost use Rattle.std.specs.Prelude.{◌≡◌, ◌<◌, ◌+◌, ◌^◌, [], ◌∷◌, ◌++◌, length, IfOk, OnOk, map};
ghost use Rattle.std.specs.List.{All};
ghost use Rattle.ot_op.specs.declared.comp.Comp.TheVariants.{Ins};
ghost use Rattle.ot_op.specs.Operation.{place, units_of};
ghost use Rattle.ranges_tracker.specs.Commented.{comment_past, comment_without, comment_set, comment_of, comments_in};

use crate::Comment;
use crate::deletes::squash;
use crate::texts::{distance, text_without};
use ot_op::Comp;
use ot_units::Units;
use std::alloc::{AllocError, Global};

// A comment after an insert.
fn comment_insert(
    alloc: Global,
    comment: &Comment,
    at: u32,
    part: &Units,
) -> Result<Comment, AllocError>
    requires { comment.now.at + length part.now < 2 ^ 32 }
    ensures { IfOk result (λ made. made ≡ comment_past (Ins at part.now) comment.now) }
{
    let mut made = comment.copy(alloc)?;
    if at <= made.at {
        made.at += part.len() as u32;
        return Ok(made);
    }
    let inside = (at - made.at) as usize;
    if inside < made.text.len() {
        made.text.put_in(inside, part.as_slice())?;
    }
    Ok(made)
}

// A comment after a delete.
fn comment_delete(
    alloc: Global,
    comment: &Comment,
    at: u32,
    len: u32,
) -> Result<Comment, AllocError>
    requires { at + len < 2 ^ 32 }
    ensures { IfOk result (λ made. made ≡ comment_without at len comment.now) }
{
    Ok(Comment {
        thread: comment.thread,
        at: squash(at, len, comment.at),
        text: text_without(
            alloc,
            &comment.text,
            distance(comment.at, at),
            distance(comment.at, at + len),
        )?,
    })
}

fn comments_insert(
    alloc: Global,
    comments: &[Comment],
    at: u32,
    part: &Units,
) -> Result<Vec<Comment>, AllocError>
    requires { All (λ c. c.at + length part.now < 2 ^ 32) comments.now }
    ensures { IfOk result (λ made. made.items ≡ map (comment_past (Ins at part.now)) comments.now) }
{
    let mut made = Vec::new(alloc);
    for c in comments {
        made.push(comment_insert(alloc, c, at, part)?)?;
    }
    Ok(made)
}

fn comments_delete(
    alloc: Global,
    comments: &[Comment],
    at: u32,
    len: u32,
) -> Result<Vec<Comment>, AllocError>
    requires { at + len < 2 ^ 32 }
    ensures { IfOk result (λ made. made.items ≡ map (comment_without at len) comments.now) }
{
    let mut made = Vec::new(alloc);
    for c in comments {
        made.push(comment_delete(alloc, c, at, len)?)?;
    }
    Ok(made)
}

// Sets the thread's comment, or adds it.
fn comments_set(
    alloc: Global,
    comments: &[Comment],
    at: u32,
    part: &Units,
    thread: u32,
) -> Result<Vec<Comment>, AllocError>
    ensures { IfOk result (λ made. made.items ≡ comment_set thread at part.now comments.now) }
{
    let mut made = Vec::new(alloc);
    let mut set = false;
    for c in comments {
        if c.thread == thread && !set {
            push_comment(alloc, &mut made, at, part, thread)?;
            set = true;
        } else {
            made.push(c.copy(alloc)?)?;
        }
    }
    if !set {
        push_comment(alloc, &mut made, at, part, thread)?;
    }
    Ok(made)
}

fn push_comment(
    alloc: Global,
    made: &mut Vec<Comment>,
    at: u32,
    part: &Units,
    thread: u32,
) -> Result<(), AllocError>
    ensures { OnOk result (made.new.items ≡ made.old.items ++ comment_of thread at part.now ∷ []) }
{
    let text = part.copy(alloc)?;
    made.push(Comment { thread, at, text })?;
    Ok(())
}

pub(crate) fn comments_after(
    alloc: Global,
    comments: &[Comment],
    comp: &Comp,
) -> Result<Vec<Comment>, AllocError>
    requires place { place comp.now + units_of comp.now < 2 ^ 32 }
    requires room { All (λ c. c.at + units_of comp.now < 2 ^ 32) comments.now }
    ensures { IfOk result (λ made. made.items ≡ comments_in comments.now comp.now) }
{
    match comp {
        Comp::Ins(at, part) => comments_insert(alloc, comments, *at, part),
        Comp::Del(at, part) => comments_delete(alloc, comments, *at, part.len() as u32),
        Comp::Com(at, part, thread) => comments_set(alloc, comments, *at, part, *thread),
    }
}
