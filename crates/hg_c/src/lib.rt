//! heapguard's cores, banks and services for hosts in C, C++ and Rust: each call that they make is an export of
//! this static library. No export has a `requires`: what a host passes wrongly is answered, and nothing
//! changes.
#![tactic(auto)]

mod at_once_exports;
mod bank_at_once_exports;
mod bank_exports;
mod bank_service_exports;
mod exports;
mod service_exports;
mod version;
