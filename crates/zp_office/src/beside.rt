//! A join of two closures that are lent. Where no thread can be made it calls neither, and says so.
ghost use Rattle.std.specs.Prelude.{◌≡◌, IfOk, IfErr, IfSome, IfNone};

use core::thread::Stack;
use std::snapshot::Snapshot;
use std::sync::Wait;
use std::sync::atomic::{AtomicBool, Ordering};
use std::thread;
use std::thread::{Promise, Threads};

// Work for a thread. Nothing is known of what a thread writes through a `&mut` that its closure holds. So the closure holds a
// value of a type parameter, and returns it.
trait Task {
    type Output;

    ghost can_run: { Self → Type 0 };

    ghost run_gives: { Self → Self.Output → Type 0 };

    fn run(self) -> Self::Output
        requires { can_run self }
        ensures { run_gives self result };
}

#[derive(Drop)]
struct LentCall<'a, F> {
    f: &'a mut F,
}

impl<'a, F: FnMut() -> A, A> Task for LentCall<'a, F> {
    type Output = (&'a mut F, A);

    ghost can_run = { λ t. F.pre t.f.now };

    ghost run_gives = { λ t r. (r.0.ghost_name ≡ t.f.ghost_name) × F.step t.f.now r.1 r.0.now };

    fn run(self) -> (&'a mut F, A) {
        let LentCall { f } = self;
        let a = f();
        (f, a)
    }
}

// The thread of a task returns its output, or the task as it was.
#[derive(Drop)]
struct RanOrLeft<S>(Snapshot<S>);

impl<S: Task<Output = A>, A> Promise<Result<A, S>> for RanOrLeft<S> {
    ghost use Rattle.std.specs.Prelude.{IfOk, IfErr, ◌≡◌};

    ghost kept_by = { λ p r. IfOk r (λ a. S.run_gives p.0.value a) × IfErr r (λ s. s ≡ p.0.value) };
}

// Runs s in a new thread and t in this one, at the same time, or gives both back.
fn both_or_neither<
    R: Threads + Wait,
    S: Task<Output = A> + Send + Drop,
    T: Task<Output = B> + Drop,
    A: Send + Drop,
    B,
>(rt: &R, stack: Stack, s: S, t: T) -> Result<(A, B), (S, T)>
    requires { S.can_run s × T.can_run t }
    ensures ok { IfOk result (λ r. S.run_gives s r.0 × T.run_gives t r.1) }
    ensures err { IfErr result (λ r. (r.0 ≡ s) × (r.1 ≡ t)) }
{
    let is_left = AtomicBool::new(false);
    let is_left = &is_left;
    thread::scope(
        thread::scope_env(),
        rt,
        move |scope| -> Result<(A, B), (S, T)>
            requires { S.can_run s × T.can_run t }
            ensures { IfOk result (λ r. S.run_gives s r.0 × T.run_gives t r.1) × IfErr result (λ r. (r.0 ≡ s) × (r.1 ≡ t)) }
        {
            let promise = RanOrLeft(Snapshot::of(&s));
            // A refused thread returns this closure and not the task in it. Called once more, with the flag set, it returns the
            // task.
            let job = move || -> Result<A, S>
                requires { S.can_run s }
                ensures { IfOk result (λ a. S.run_gives s a) × IfErr result (λ x. x ≡ s) }
            {
                if is_left.load(Ordering::SeqCst) {
                    Err(s)
                } else {
                    Ok(s.run())
                }
            };
            // No proof knows the flag. So the two arms that no run takes, of a thread that saw it set and of a call that did not, run
            // what is left.
            match stack.spawn_scoped_with(scope, promise, job) {
                Ok(thread) => {
                    let b = t.run();
                    match thread.join(rt) {
                        Ok(a) => Ok((a, b)),
                        Err(s) => Ok((s.run(), b)),
                    }
                }
                Err(refused) => {
                    is_left.store(true, Ordering::SeqCst);
                    match (refused.value)() {
                        Ok(a) => Ok((a, t.run())),
                        Err(s) => Err((s, t)),
                    }
                }
            }
        },
    )
}

/// Calls `f` in a new thread and `g` in this one, at the same time. Where no thread can be made it calls neither.
pub fn join_or_neither<
    R: Threads + Wait,
    F: FnMut() -> A + Send,
    G: FnMut() -> B,
    A: Send + Drop,
    B,
>(rt: &R, f: &mut F, g: &mut G) -> Option<(A, B)>
    requires { F.pre f.old × G.pre g.old }
    ensures both { IfSome result (λ r. F.step f.old r.0 f.new × G.step g.old r.1 g.new) }
    ensures neither { IfNone result ((f.new ≡ f.old) × (g.new ≡ g.old)) }
{
    join_or_neither_on(rt, None, f, g)
}

/// As `join_or_neither`, with a stack of so many bytes for the new thread, where a size is named. One that no system has makes no
/// thread.
pub fn join_or_neither_on<
    R: Threads + Wait,
    F: FnMut() -> A + Send,
    G: FnMut() -> B,
    A: Send + Drop,
    B,
>(rt: &R, stack_size: Option<usize>, f: &mut F, g: &mut G) -> Option<(A, B)>
    requires { F.pre f.old × G.pre g.old }
    ensures both { IfSome result (λ r. F.step f.old r.0 f.new × G.step g.old r.1 g.new) }
    ensures neither { IfNone result ((f.new ≡ f.old) × (g.new ≡ g.old)) }
{
    let stack = match stack_size {
        Some(size) => Stack::new().stack_size(size),
        None => Stack::new(),
    };
    match both_or_neither(rt, stack, LentCall { f }, LentCall { f: g }) {
        Ok(((f, a), (g, b))) => {
            take_back(f);
            take_back(g);
            Some((a, b))
        }
        Err((LentCall { f }, LentCall { f: g })) => {
            take_back(f);
            take_back(g);
            None
        }
    }
}

// Does nothing. This use of a returned reference ties it, for the borrow checker, to the parameter that lent it.
fn take_back<T>(x: &mut T)
    ensures { x.new ≡ x.old }
{}
