//! What a command that runs something works over.
use std::alloc::AllocGlobal;
use std::net::Net;
use std::rt::Files;
use std::sync::Wait;
use std::thread::Threads;

/// A runtime with files, a network, memory and threads.
pub trait Host: Files + Net + AllocGlobal + Threads + Wait + Sync {}

impl<R: Files + Net + AllocGlobal + Threads + Wait + Sync> Host for R {}
