// The open incidents: holds that lapse, a list of them, marks on the table alone, and on the table with its queue.
mod lapses;
mod listing;
mod marks;
mod queued_table;
