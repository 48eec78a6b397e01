//! Boxes by one thread and by three, and what else holds messages back.

mod letters;
mod mailboxes;
mod routes;
mod windows;
