//! What an engine asks for after each reply, and what it comes to.
mod coming;
mod engine;
mod expect;
mod replies;
mod resent;
mod unlawful;
mod words;
