//! Which error a task has on a text.
ghost use Rattle.std.specs.Prelude.{◌≡◌, ◌⊎◌, ℕ, List};
ghost use Rattle.jsonptr.specs.Text.{Text};
ghost use Rattle.jsonptr_io.specs.Lines.{IsOneLine};
ghost use Rattle.jptr_tasks.specs.Documents.{TaskFailsOn};
ghost use Rattle.jptr_tasks.specs.LineResults.{IsLineFault, StopsRun};
ghost use Rattle.jptr_tasks.specs.OneError.{IsOfPlace, TaskHasSortedKeys};
ghost use Rattle.jptr_tasks.specs.Results.{Fails, Yields};
ghost use Rattle.jptr_tasks.specs.declared.task_error.TaskError.{TaskError};
ghost use Rattle.jptr_tasks.specs.declared.task_error.TaskError.TheVariants.{NotLocated};
ghost use Rattle.jptr_tasks.specs.declared.layout.Layout.{Layout};
ghost use Rattle.jptr_tasks.specs.declared.task.Task.{Task};

use jsonptr_laws::resolve::resolve_law;
use jsonptr_text_edit::laws::edit_law;

/// States that a task has at most one error on a text, with all its fields. So an operation of a patch that
/// fails has at most one pointer at fault.
///
/// This holds for a text (`text`), for bytes (`bytes`) and for a line of an input (`line`). A failed
/// allocation is left out, since it can come with every input. If a task has a result, it has no other
/// error (`not_both`). There are two exceptions:
/// [`TaskError::NotInPlace`](crate::task_error::TaskError::NotInPlace) in the layout
/// [`Layout::Kept`](crate::layout::Layout::Kept), and
/// [`TaskError::NotLocated`](crate::task_error::TaskError::NotLocated).
///
/// The values of a patch have sorted keys, as those of each patch that is read.
pub fn one_error_law()
    ensures text { (task : Task) (layout : Layout) (text : Text) (e f : TaskError)
        → TaskHasSortedKeys task → (StopsRun e → ⊥) → (StopsRun f → ⊥)
        → Fails task layout text e → Fails task layout text f → e ≡ f }
    ensures bytes { (task : Task) (layout : Layout) (bytes : List ℕ) (e f : TaskError)
        → TaskHasSortedKeys task → (StopsRun e → ⊥) → (StopsRun f → ⊥)
        → TaskFailsOn task layout bytes e → TaskFailsOn task layout bytes f → e ≡ f }
    ensures not_both { (task : Task) (layout : Layout) (text out : Text) (e : TaskError)
        → TaskHasSortedKeys task
        → Yields task layout text out → Fails task layout text e
        → StopsRun e ⊎ IsOfPlace task layout e }
    ensures line { (task : Task) (layout : Layout) (l : Text) (e f : TaskError)
        → TaskHasSortedKeys task → IsOneLine l
        → IsLineFault task layout l e → IsLineFault task layout l f
        → (e ≡ f) ⊎ ((e ≡ NotLocated) ⊎ (f ≡ NotLocated)) }
{
    edit_law();
    resolve_law();
}
