//! Links over bytes in memory, and over readers and writers of std.
mod failing_once;
mod lasting;
mod links;
mod over_std;
mod two_calls;
mod values;
