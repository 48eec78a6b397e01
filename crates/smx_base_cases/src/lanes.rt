//! A lane: its replies, the words of its refusals, the numbers that it gives, requests that are too old,
//! the loss of its link, the check of finished histories, and trials beside a slow model.

mod calls;
mod fixture;
mod legal;
mod refusals;
mod said;
mod scenarios;
mod trials;
