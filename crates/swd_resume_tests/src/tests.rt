//! What a host sends, request by request, and how it resumes.
mod expect;
mod hostile;
mod length;
mod resume;
mod resumed_blocks;
