ghost use Rattle.std.specs.Prelude.{◌≡◌, ℕ, List};
ghost use Rattle.proof_log.specs.Feeding.{Fed};
ghost use Rattle.proof_log.specs.declared.line.LogLine.{LogLine};
ghost use Rattle.proof_log.specs.declared.reader.LogReader.{LogReader};

/// Two readers that were fed the same bytes, in whatever pieces, have handed out the same lines.
pub fn pieces_do_not_matter()
    ensures { (front other : List LogLine) (r q : LogReader) (bytes : List ℕ) → Fed front r bytes
        → Fed other q bytes → front ≡ other }
{}
