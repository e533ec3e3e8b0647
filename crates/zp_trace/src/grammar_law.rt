//! Laws of the grammar. Each function does nothing: its contract is the law.
ghost use Rattle.std.specs.Prelude.{◌≡◌, List, ℕ};
ghost use Rattle.zp_trace.specs.declared.trace.Trace.{Trace};
ghost use Rattle.zp_trace.specs.Grammar.{IsTraceText, IsBadLine};

/// A text writes one trace at most.
pub fn a_text_writes_one_trace()
    ensures { (text : List ℕ) (t u : Trace) → IsTraceText text t → IsTraceText text u → t ≡ u }
{}

/// A text that writes a trace has no bad line.
pub fn a_good_text_has_no_bad_line()
    ensures { (text : List ℕ) (t : Trace) (n : ℕ) → IsTraceText text t → IsBadLine text n → ⊥ }
{}

/// A text has one bad line at most.
pub fn a_text_has_one_bad_line()
    ensures { (text : List ℕ) (m n : ℕ) → IsBadLine text m → IsBadLine text n → m ≡ n }
{}
