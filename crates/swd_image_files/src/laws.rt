//! A law of image files. The function does nothing: its contract is the law.
ghost use Rattle.swd_image_files.specs.declared.format.Format.{Format};
ghost use Rattle.swd_image_files.specs.Laws.{ReadsBack};

/// States that a file that was written is read back as one piece of the same bytes at the same address.
pub fn written_files_are_read()
    ensures { (format : Format) → ReadsBack format }
{}
