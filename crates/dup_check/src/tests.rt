//! What the calls answer with ample memory, on small texts worked by hand.

mod deciding;
mod window;
