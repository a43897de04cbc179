//! During which moments a tick does something at a client, and the first of them from a moment on.
//! `st_laws_due` has the law.
#![tactic(auto)]
