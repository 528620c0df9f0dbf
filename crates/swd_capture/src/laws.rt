//! Properties of the output. The functions do nothing: their contracts state the properties.
ghost use Rattle.std.specs.Prelude.{◌≡◌, ◌<◌, ◌++◌, ℕ, List, map};
ghost use Rattle.swd_trace.specs.declared.item.Item.{Item};
ghost use Rattle.swd_capture.specs.declared.printed.Printed.TheVariants.{Accesses};
ghost use Rattle.swd_capture.specs.Accesses.{observer_text_of_items, observer_text_reported};
ghost use Rattle.swd_capture.specs.Printing.{capture_printout};
ghost use Rattle.swd_observer.specs.declared.trace.TraceObserver.{TraceObserver};
ghost use Rattle.swd_observer.specs.Observing.{observed_last_accesses, observer_unknown};
ghost use Rattle.swd_observer.specs.Traces.{trace_observer_after, trace_observer_from};
ghost use Rattle.swd_observer.specs.declared.trace.TraceStart.{TraceStart};
ghost use Rattle.swd_resync.specs.AsItems.{resync_part_items};
ghost use Rattle.swd_resync.specs.declared.part.Part.{Part};
ghost use Rattle.swd_resync.specs.declared.part.Part.TheVariants.{Item as Told, Skip};
ghost use Rattle.swd_capture.specs.Tables.{capture_part_kind, capture_row_name, capture_part_row};

/// States that the row in which a part is counted has the name of the part's kind.
pub fn rows_are_named_by_kind()
    ensures { (part : Part) → capture_row_name (capture_part_row part) ≡ capture_part_kind part }
{}

/// States that an observer knows nothing of the target after a skip of at least one bit. So each stretch is observed
/// as a trace that begins anywhere.
pub fn skips_are_forgotten()
    ensures { (n : ℕ) (t : TraceObserver) → 0 < n
        → (trace_observer_after (resync_part_items (Skip n)) t).observer ≡ observer_unknown }
{}

/// States that what is printed of the accesses of a trace's items is what an observer shows of them: without a skip no
/// transaction belongs to a gap.
pub fn traces_are_observed()
    ensures { (start : TraceStart) (items : List Item) → capture_printout (Accesses start) (map Told items)
        ≡ observer_text_of_items items (trace_observer_from start) ++ observer_text_reported
        (observed_last_accesses (trace_observer_after items (trace_observer_from start)).observer) }
{}
